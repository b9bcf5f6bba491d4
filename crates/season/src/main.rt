// Records the pattern of a berth's season, checks it, renders and hashes it, binds it to a domain, and follows it again.
#![tactic(auto)]

mod plan;
mod report;

use crate::plan::follow_season;
use crate::report::{say, say_domain, say_pattern};
use domain_separator::separator::DomainSeparator;
use error::TranscriptError;
use pattern::sequence::InteractionPattern;
use player::player::PatternPlayer;
use sink::sink::Sink;
use sink::vec_sink::VecSink;
use state::pattern_state::PatternState;
use std::io;
use std::io::Write;

// The pattern of the season, by a recorder.
fn record<S: Sink>(out: &mut S) -> Result<InteractionPattern, TranscriptError> {
    let (mut recorder, pledge) = PatternState::new();
    let recorded = follow_season(&mut recorder);
    say(out, b"record the season's steps", &recorded);
    recorder.finalize(pledge)
}

// All that follows from the pattern.
fn show<S: Sink>(out: &mut S, pattern: InteractionPattern) -> Result<(), TranscriptError> {
    say_pattern(out, &pattern);
    let again = InteractionPattern::new(pattern.interactions())?;
    say(out, b"check the steps again", &Ok(()));
    let domain = DomainSeparator::new(1, b"Honethyme berth season", again)?;
    say_domain(out, &domain);
    let mut player = PatternPlayer::new(pattern);
    say(out, b"follow the pattern", &follow_season(&mut player));
    say(out, b"finish", &player.finalize());
    let mut late = PatternPlayer::new(pattern);
    say(out, b"finish before the first step", &late.finalize());
    say(out, b"go on after the finish", &follow_season(&mut late));
    Ok(())
}

fn main(rt: HostRuntime) -> io::Result<()> {
    let mut out = VecSink::new(rt.alloc());
    match record(&mut out) {
        Ok(pattern) => {
            let shown = show(&mut out, pattern);
            say(&mut out, b"all of it", &shown);
        }
        Err(refusal) => say(&mut out, b"finish the recording", &Err(refusal)),
    }
    let text = out.finish()?;
    rt.stdout().write_all(text.as_slice())
}
