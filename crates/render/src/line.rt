// One line of a rendering: position, indentation and step.
ghost use Rattle.std.specs.Prelude.{◌≡◌, ◌+◌, ◌^◌, ◌<◌};
ghost use Rattle.sink.specs.Taking.{Takes};
ghost use Rattle.render.specs.Rendering.{line, step_text, level, depth_after};

use crate::names::{name_of_hierarchy, name_of_kind, put_length, put_tag};
use sink::sink::Sink;
use sink::write::{put_decimal, put_padded, put_repeated};
use step::interaction::{Hierarchy, Interaction};

// The type name is left out: it belongs to a compiler, and two ends built by different ones have to agree.
fn put_step<S: Sink>(sink: &mut S, step: &Interaction)
    ensures { Takes S.holds sink.old (step_text step.now) sink.new }
{
    let label = step.label.as_bytes();
    sink.put(name_of_hierarchy(step.hierarchy));
    sink.put(b" ");
    sink.put(name_of_kind(step.kind));
    sink.put(b" ");
    put_decimal(sink, label.len() as u64);
    sink.put(b" ");
    sink.put(label);
    sink.put(b" ");
    put_length(sink, step.length);
    sink.put(b" ");
    put_tag(sink, &step.type_tag);
}

pub(crate) fn put_line<S: Sink>(
    sink: &mut S,
    width: usize,
    position: usize,
    depth: usize,
    step: &Interaction,
)
    ensures { Takes S.holds sink.old (line width position depth step.now) sink.new }
{
    put_padded(sink, position as u64, width);
    sink.put(b" ");
    put_repeated(sink, b"  ", depth);
    put_step(sink, step);
    sink.put(b"\n");
}

// Where a step stands: a closer one level to the left, as its opener. No method, since a step knows of no indentation.
pub(crate) fn level_of(hierarchy: Hierarchy, depth: usize) -> usize
    ensures { result ≡ level hierarchy depth }
{
    match hierarchy {
        Hierarchy::End => depth.saturating_sub(1),
        _ => depth,
    }
}

// How deep what follows stands: an opener at this level leads one to the right.
pub(crate) fn depth_past(hierarchy: Hierarchy, at: usize) -> usize
    requires { at + 1 < 2 ^ 64 }
    ensures { result ≡ depth_after hierarchy at }
{
    match hierarchy {
        Hierarchy::Begin => at + 1,
        _ => at,
    }
}
