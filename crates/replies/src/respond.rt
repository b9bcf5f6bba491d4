// The reply to one line of a script.
ghost use Rattle.std.specs.Prelude.{◌≡◌, ◌++◌, is_ok, if◌then◌else◌};
ghost use Rattle.replies.specs.Answers.{response_of};
ghost use Rattle.replies.specs.Replies.{reply, answer_line};

use crate::answer::Answer;
use crate::leaves::answer_leaf;
use script::command::{Command, Line};
use script::parse::read_line;
use std::alloc::{AllocError, Global};

// Adds the answer and a newline to `out`, and nothing for a line that has no answer.
pub fn respond(heap: Global, line: &[u8], out: &mut Vec<u8>) -> Result<(), AllocError>
    ensures items { out.new.items ≡ (if is_ok result then out.old.items ++ reply line.now else out.old.items) }
{
    match read_line(line) {
        Line::Silent => Ok(()),
        Line::Wrong => add_line(heap, Answer::Error, out),
        Line::Asks(Command::Leaf(leaf)) => add_line(heap, answer_leaf(heap, leaf)?, out),
    }
}

fn add_line(heap: Global, answer: Answer, out: &mut Vec<u8>) -> Result<(), AllocError>
    ensures items { out.new.items ≡ (if is_ok result then out.old.items ++ answer_line (response_of answer) else out.old.items) }
{
    let mut line = answer.to_text(heap)?;
    line.push(b'\n')?;
    out.extend_from_slice(line.as_slice())
}
