// Runs are answered as the plain program answers, which computes what the definitions say, without
// pages, indexes and records.
use crate::deck::play;
use rg_base::copy::TableCopy;
use rg_base::session::Session;
use rg_mem::volume::MemVolume;
use rg_model::plain::PlainState;
use rg_run::played::RunEnd;
use rg_stmt::event::{Actor, Event};
use rg_stmt::stmt::Stmt;
use std::alloc::Global;
use std::io::Write;
use std::test::Fail;

// A linear congruential generator. Its upper bits are used, since the lower ones repeat soon.
#[derive(Drop)]
struct Draws {
    state: u64,
}

impl Draws {
    fn below(&mut self, limit: u64) -> u64 {
        self.state = self
            .state
            .wrapping_mul(6_364_136_223_846_793_005)
            .wrapping_add(1_442_695_040_888_963_407);
        (self.state >> 33) % limit.max(1)
    }

    fn session(&mut self) -> u8 {
        match self.below(5) {
            0 => 1,
            1 => 2,
            2 => 3,
            3 => 50,
            _ => 99,
        }
    }

    // One of 8 keys, of which the last is the greatest that there is.
    fn key(&mut self) -> u64 {
        match self.below(8) {
            7 => u64::MAX,
            key => key,
        }
    }

    // Adds a row. Its text has as many letters as its `clus` says, and 800 at most.
    fn push_row(&mut self, deck: &mut Vec<u8>, verb: &str) -> Result<(), Fail> {
        let (key, clus, cat) = (self.key(), self.below(1000), self.below(3));
        write!(deck, "{verb} {key} {clus} {cat} ")?;
        if clus == 0 {
            deck.push(b'-')?;
        }
        for _ in 0..clus.min(800) {
            deck.push(b'x')?;
        }
        Ok(())
    }

    // Adds a line.
    fn push_line(&mut self, deck: &mut Vec<u8>) -> Result<(), Fail> {
        write!(deck, "{} ", self.session())?;
        match self.below(16) {
            0..=3 => self.push_row(deck, "INSERT")?,
            4..=5 => self.push_row(deck, "UPDATE")?,
            6..=7 => write!(deck, "DELETE {}", self.key())?,
            8 => write!(deck, "SELECT {}", self.key())?,
            9..=10 => write!(deck, "SCAN {} {}", self.key(), self.key())?,
            11..=12 => write!(deck, "FIND {}", self.below(3))?,
            13..=14 => write!(deck, "COMMIT")?,
            _ => write!(deck, "ROLLBACK")?,
        }
        deck.push(b'\n')?;
        Ok(())
    }
}

// So many lines of sessions that write, move and read rows of 8 keys.
fn drawn(alloc: Global, count: u32) -> Result<Vec<u8>, Fail> {
    let mut deck = Vec::new(alloc);
    let mut draws = Draws { state: 2026 };
    for _ in 0..count {
        draws.push_line(&mut deck)?;
    }
    Ok(deck)
}

#[test]
fn answers_as_the_plain_program(rt: HostRuntime) -> Result<(), Fail> {
    let alloc = rt.alloc();
    let volume = MemVolume::new(alloc, 2000, 9, 9, 4096, 4096, &[], None)?;
    let played = play(alloc, volume, &drawn(alloc, 600)?)?;
    let mut plain = PlainState::new(alloc, TableCopy::first());
    assert_eq!(rt; played.trace.len(), 601);
    for (at, entry) in played.trace.iter().enumerate() {
        let (Actor::Session(session), Event::Said { stmt, reply }) = (entry.actor, &entry.event)
        else {
            continue;
        };
        let said = format!(in alloc; "{reply:?}")?;
        let reply = plain.say(alloc, session, stmt);
        let expected = format!(in alloc; "{reply:?}")?;
        assert_eq!(rt; said.as_str(), expected.as_str(), "at {at}");
    }
    for number in [1, 2, 3, 50, 99] {
        plain.say(alloc, Session(number), &Stmt::Rollback);
    }
    let rows = plain.table.len() as u64;
    assert_eq!(rt; played.end, RunEnd::Whole { rows });
    Ok(())
}
