ghost use Rattle.std.specs.List.{AllByRecursion};
ghost use Rattle.rg_run.specs.Played.{IsPlayed};

use crate::order::{Fault, Order, Shows, read_order};
use crate::told::text_of;
use rg_base::no_memory::NoMemory;
use rg_base::set::Set;
use rg_deck::read::{DECK_LIMIT, DeckFault, read_deck};
use rg_log::open::open_log;
use rg_mem::script::ScriptOperator;
use rg_mem::volume::{Failing, MemVolume};
use rg_opts::operator::read_operator;
use rg_outside::volume::Volume;
use rg_record::record::Kind;
use rg_run::run::run_judged;
use rg_stmt::line::Line;
use std::alloc::Global;
use std::io::Write;
use std::mem;

// Room for more calls than any of the decks makes.
const CALLS: u32 = 2_000;

/// The volume, the image of it that the next order is for, if there is one, and the lines of the
/// order that is being read.
#[derive(Drop)]
pub struct Stage {
    alloc: Global,
    volume: Option<MemVolume>,
    image: Option<MemVolume>,
    answers: Vec<u8>,
    lines: Vec<u8>,
    open: Option<Order>,
}

impl Stage {
    /// A stage without a volume.
    pub fn new(alloc: Global) -> Stage {
        Stage {
            alloc,
            volume: None,
            image: None,
            answers: Vec::new(alloc),
            lines: Vec::new(alloc),
            open: None,
        }
    }

    /// Takes the next line of the input, and returns what is printed for it.
    pub fn take_line(&mut self, line: &str) -> Result<Vec<u8>, NoMemory> {
        match self.open {
            None => self.begin(line),
            Some(order) if line == "." => {
                self.open = None;
                let lines = mem::replace(&mut self.lines, Vec::new(self.alloc));
                match order {
                    Order::Play(shows) => self.play(shows, lines.as_slice()),
                    _ => {
                        self.answers = lines;
                        Ok(Vec::new(self.alloc))
                    }
                }
            }
            Some(_) => {
                self.lines.extend_from_slice(line.as_bytes())?;
                self.lines.push(b'\n')?;
                Ok(Vec::new(self.alloc))
            }
        }
    }

    // A line outside a deck.
    fn begin(&mut self, line: &str) -> Result<Vec<u8>, NoMemory> {
        let mut out = Vec::new(self.alloc);
        out.extend_from_slice(line.as_bytes())?;
        out.push(b'\n')?;
        if line.is_empty() || line.starts_with('#') {
            return Ok(out);
        }
        let is_done = match read_order(self.alloc, line)? {
            None => false,
            Some(Order::Volume { log, pages, fault }) => {
                self.volume = Some(volume_of(self.alloc, log, pages, fault)?);
                true
            }
            Some(Order::Tear { set, page }) => self.tear(set, page),
            Some(Order::Crash(pick)) => self.crash(pick)?,
            Some(Order::CrashWith(one, two)) => self.crash_with(one, two)?,
            Some(Order::Records) => self.push_records(&mut out)?,
            Some(order) => {
                self.open = Some(order);
                true
            }
        };
        if !is_done {
            out.extend_from_slice(b"NOT DONE\n")?;
        }
        Ok(out)
    }

    fn tear(&mut self, set: Set, page: u32) -> bool {
        let Some(volume) = &mut self.volume else {
            return false;
        };
        if page < 1 || page > volume.capacity(set) {
            return false;
        }
        volume.write(set, page, &[255; 4096]).is_ok()
    }

    fn crash(&mut self, pick: u64) -> Result<bool, NoMemory> {
        let Some(volume) = &self.volume else {
            return Ok(false);
        };
        self.image = Some(volume.crash(pick)?);
        Ok(true)
    }

    fn crash_with(&mut self, one: u64, two: u64) -> Result<bool, NoMemory> {
        let Some(volume) = &self.volume else {
            return Ok(false);
        };
        self.image = Some(volume.crash_with(&[one, two])?);
        Ok(true)
    }

    // What each record of the image's log is.
    fn push_records(&mut self, out: &mut Vec<u8>) -> Result<bool, NoMemory> {
        let Some(mut image) = self.image.take() else {
            return Ok(false);
        };
        let Ok(log) = open_log(self.alloc, &mut image) else {
            return Ok(false);
        };
        for entry in log.records() {
            out.extend_from_slice(name_of(&entry.kind))?;
        }
        Ok(true)
    }

    fn play(&mut self, shows: Shows, deck: &[u8]) -> Result<Vec<u8>, NoMemory> {
        if deck.len() > DECK_LIMIT {
            return told(self.alloc, b"REFUSED deck long\n");
        }
        match read_deck(self.alloc, deck) {
            Ok(lines) => self.play_lines(shows, lines),
            Err(DeckFault::Line { number }) => {
                let mut out = Vec::new(self.alloc);
                writeln!(out, "REFUSED deck line {number}").map_err(|_| NoMemory)?;
                Ok(out)
            }
            Err(DeckFault::NoMemory) => Err(NoMemory),
        }
    }

    // Plays the lines over the image, if there is one, and else over the volume, which stays as the
    // run leaves it.
    fn play_lines(&mut self, shows: Shows, lines: Vec<Line>) -> Result<Vec<u8>, NoMemory>
        requires { AllByRecursion IsPlayed lines.items }
    {
        let alloc = self.alloc;
        let Ok(answers) = read_operator(alloc, self.answers.as_slice()) else {
            return told(alloc, b"REFUSED operator\n");
        };
        self.answers = Vec::new(alloc);
        let operator = ScriptOperator::new(alloc, answers.as_slice())?;
        if let Some(image) = self.image.take() {
            let (text, _) = text_of(alloc, shows, run_judged(alloc, image, operator, lines))?;
            return Ok(text);
        }
        let Some(volume) = self.volume.take() else {
            return told(alloc, b"NO VOLUME\n");
        };
        let (text, left) = text_of(alloc, shows, run_judged(alloc, volume, operator, lines))?;
        self.volume = Some(left);
        Ok(text)
    }
}

fn told(alloc: Global, text: &[u8]) -> Result<Vec<u8>, NoMemory> {
    Ok(text.to_vec(alloc)?)
}

fn name_of(kind: &Kind) -> &'static [u8] {
    match kind {
        Kind::Change { .. } => b"CHANGE\n",
        Kind::Undo { .. } => b"UNDO\n",
        Kind::Commit => b"COMMIT\n",
        Kind::RolledBack => b"ROLLED BACK\n",
        Kind::Purge { .. } => b"PURGE\n",
        Kind::Switch { .. } => b"SWITCH\n",
    }
}

fn volume_of(alloc: Global, log: u32, pages: u32, fault: Fault) -> Result<MemVolume, NoMemory> {
    let (call, written, stop) = match fault {
        Fault::Never => (0, false, None),
        Fault::Call(call) => (call, false, None),
        Fault::Written(call) => (call, true, None),
        Fault::After(calls) => (0, false, Some(calls)),
    };
    // Calls are counted from 1.
    let failing = [Failing { call, written }];
    MemVolume::new(alloc, log, pages, pages, CALLS, CALLS, &failing, stop)
}
