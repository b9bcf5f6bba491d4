// What the program writes: all of it into one sink, since a rendering goes into one.
use domain_separator::separator::DomainSeparator;
use error::TranscriptError;
use pattern::sequence::InteractionPattern;
use render::rendering::{render, steps_hash};
use sink::sink::Sink;
use sink::write::{put_decimal, put_hex};

// One line: what was asked, and the answer.
pub fn say<S: Sink>(out: &mut S, asked: &[u8], answer: &Result<(), TranscriptError>) {
    out.put(asked);
    match answer {
        Ok(()) => out.put(b": ok\n"),
        Err(refusal) => {
            out.put(b": refused by ");
            put_decimal(out, u64::from(refusal.number()));
            out.put(b"\n");
        }
    }
}

fn say_bytes<S: Sink>(out: &mut S, name: &[u8], bytes: &[u8]) {
    out.put(name);
    out.put(b": ");
    put_hex(out, bytes);
    out.put(b"\n");
}

pub fn say_pattern<S: Sink>(out: &mut S, pattern: &InteractionPattern) {
    render(out, pattern.interactions());
    say_bytes(out, b"pattern hash", &steps_hash(pattern.interactions()));
}

pub fn say_domain<S: Sink>(out: &mut S, domain: &DomainSeparator) {
    say_bytes(out, b"identifier", domain.protocol_id());
    say_bytes(out, b"seed", &domain.seed_bytes());
}
