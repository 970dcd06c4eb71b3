// An operator with a script.
//
// 1. Its lines are the answers to its questions, in their order.
// 2. Behind the last line it answers that line again without its command. With no line it answers
//    moment 0 and estimate 0, and wants nothing.
// 3. It keeps what it was told last of the work that is left.
ghost use Rattle.std.specs.Prelude.{◌≡◌, IfOk};
ghost use Rattle.rg_outside.specs.Told.{AddsAnswer, HandsOver};
ghost use Rattle.rg_outside.specs.Counts.{count_after};
ghost use Rattle.rg_mem.specs.Script.{answer_at, told_answers, told_left};

use rg_base::control::{Answer, Command};
use rg_base::no_memory::NoMemory;
use rg_outside::operator::Operator;
use std::alloc::Global;
use std::marker::Model;

/// An operator that answers its lines in order, and then the last again without its command.
#[derive(Drop)]
pub struct ScriptOperator {
    lines: Vec<Answer>,
    asks: u64,
    left: u64,
}

impl Model for ScriptOperator {
    ghost use Rattle.rg_mem.specs.Script.{Script};

    ghost Value = { Script };

    ghost view = { λ o. record { lines = o.lines.items; asks = o.asks; left = o.left } };
}

impl ScriptOperator {
    /// With no line it wants nothing, at moment 0 and with an estimate of 0.
    pub fn new(alloc: Global, lines: &[Answer]) -> Result<ScriptOperator, NoMemory>
        ensures { IfOk result
            (λ operator. operator ≡ record { lines = lines.now; asks = 0; left = 0 }) }
    {
        Ok(ScriptOperator {
            lines: Vec::from_slice(alloc, lines)?,
            asks: 0,
            left: 0,
        })
    }
}

impl Operator for ScriptOperator {
    ghost answers = { told_answers };

    ghost last = { told_left };

    fn ask(&mut self, left: u64) -> Answer
        ensures answer { result ≡ answer_at self.old.lines self.old.asks }
        ensures after { self.new
            ≡ record self.old { asks = count_after self.old.asks; left = left } }
        ensures answered { AddsAnswer (told_answers self.old) result (told_answers self.new) }
        ensures handed { HandsOver left (told_answers self.new) (told_left self.new) }
    {
        let answer = line_at(&self.lines, self.asks);
        self.left = left;
        if self.asks < u64::MAX {
            self.asks += 1;
        }
        answer
    }
}

// The line at a place, or behind the lines the last one without its command.
fn line_at(lines: &[Answer], n: u64) -> Answer
    ensures { result ≡ answer_at lines.now n }
{
    if n < lines.len() as u64 {
        return lines[n as usize];
    }
    match lines.last() {
        Some(line) => Answer {
            command: Command::Nothing,
            ..*line
        },
        None => Answer {
            now: 0,
            estimate: 0,
            command: Command::Nothing,
        },
    }
}
