// The whole rendering, into any sink, into memory, and into a hash.
ghost use Rattle.std.specs.Prelude.{◌≡◌, IfOk};
ghost use Rattle.keccak.specs.Sponge.{keccak_256};
ghost use Rattle.sink.specs.Taking.{Takes};
ghost use Rattle.render.specs.Rendering.{rendering};

use crate::line::{depth_past, level_of, put_line};
use keccak::Keccak256;
use sink::sink::Sink;
use sink::vec_sink::VecSink;
use sink::write::{decimal_len, put_decimal};
use std::alloc::{AllocError, Global};
use step::interaction::Interaction;

// Any steps are rendered, also with closers that close nothing and scopes that stay open.
pub fn render<S: Sink>(sink: &mut S, steps: &[Interaction])
    ensures { Takes S.holds sink.old (rendering steps.now) sink.new }
{
    let count = steps.len() as u64;
    sink.put(b"Plonky3 Fiat-Shamir Transcript (");
    put_decimal(sink, count);
    sink.put(b" interactions)\n");
    let width = decimal_len(count.saturating_sub(1));
    let mut depth = 0;
    for (position, step) in steps.iter().enumerate() {
        let level = level_of(step.hierarchy, depth);
        put_line(sink, width, position, level, step);
        depth = depth_past(step.hierarchy, level);
    }
}

pub fn render_to_vec(heap: Global, steps: &[Interaction]) -> Result<Vec<u8>, AllocError>
    ensures { IfOk result (λ v. v.items ≡ rendering steps.now) }
{
    let mut sink = VecSink::new(heap);
    render(&mut sink, steps);
    sink.finish()
}

// Keccak-256 of the rendering, which nothing has to hold as a whole.
pub fn steps_hash(steps: &[Interaction]) -> [u8; 32]
    ensures { result ≡ keccak_256 (rendering steps.now) }
{
    let mut hasher = Keccak256::new();
    render(&mut hasher, steps);
    hasher.digest()
}
