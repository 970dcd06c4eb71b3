use rg_base::no_memory::NoMemory;
use rg_base::number::{read_number, read_number_within};
use rg_base::set::Set;
use std::alloc::Global;

/// What of a run is printed beside its print with brief layouts.
#[derive(Clone, Copy)]
pub enum Shows {
    Nothing,
    FullLayouts,
    Counts,
}

/// Which calls of a volume fail.
#[derive(Clone, Copy)]
pub enum Fault {
    Never,
    /// This one. A write that fails leaves what was there.
    Call(u64),
    /// This one. A write that fails leaves what was to be written.
    Written(u64),
    /// All after so many.
    After(u64),
}

/// What a line asks for.
#[derive(Clone, Copy)]
pub enum Order {
    Volume { log: u32, pages: u32, fault: Fault },
    Tear { set: Set, page: u32 },
    Crash(u64),
    CrashWith(u64, u64),
    Records,
    Operator,
    Play(Shows),
}

/// What a line asks for, if it is an order.
pub fn read_order(alloc: Global, line: &str) -> Result<Option<Order>, NoMemory> {
    let words: Vec<&str> = line.split_whitespace().collect(alloc)?;
    Ok(order_of(words.as_slice()))
}

fn order_of(words: &[&str]) -> Option<Order> {
    match words {
        ["volume", log, pages] => volume_of(log, pages, Fault::Never),
        ["volume", log, pages, "fails", call] => {
            volume_of(log, pages, Fault::Call(read_number(call)?))
        }
        ["volume", log, pages, "wrote", call] => {
            volume_of(log, pages, Fault::Written(read_number(call)?))
        }
        ["volume", log, pages, "stops", calls] => {
            volume_of(log, pages, Fault::After(read_number(calls)?))
        }
        ["tear", "log", page] => tear_of(Set::Log, page),
        ["tear", "first", page] => tear_of(Set::First, page),
        ["crash", pick] => Some(Order::Crash(read_number(pick)?)),
        ["crash", "with", one, two] => {
            Some(Order::CrashWith(read_number(one)?, read_number(two)?))
        }
        ["records"] => Some(Order::Records),
        ["operator"] => Some(Order::Operator),
        ["play"] => Some(Order::Play(Shows::Nothing)),
        ["play", "full"] => Some(Order::Play(Shows::FullLayouts)),
        ["play", "counted"] => Some(Order::Play(Shows::Counts)),
        _ => None,
    }
}

fn volume_of(log: &str, pages: &str, fault: Fault) -> Option<Order> {
    Some(Order::Volume {
        log: pages_of(log)?,
        pages: pages_of(pages)?,
        fault,
    })
}

fn tear_of(set: Set, page: &str) -> Option<Order> {
    Some(Order::Tear {
        set,
        page: pages_of(page)?,
    })
}

// A number of pages.
fn pages_of(word: &str) -> Option<u32> {
    Some(read_number_within(word, 65_536)? as u32)
}
