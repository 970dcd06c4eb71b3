use super::ClockOperator;
use rg_base::control::{Answer, Command};
use rg_outside::operator::Operator;
use std::cell::Cell;
use std::io::{self, ErrorKind};
use std::test::Fail;
use std::time::{Clock, Duration};

/// A clock with a list of readings in milliseconds. It fails where one is missing.
#[derive(Drop)]
struct Readings<'a> {
    readings: &'a [Option<u64>],
    next: Cell<usize>,
}

impl Clock for Readings<'_> {
    fn monotonic(&self) -> io::Result<Duration> {
        let at = self.next.get();
        self.next.set(at.saturating_add(1));
        match self.readings.get(at) {
            Some(Some(millis)) => Ok(Duration::from_millis(*millis)),
            _ => Err(ErrorKind::Other.into()),
        }
    }

    fn since_1970(&self) -> io::Result<Duration> {
        Err(ErrorKind::Unsupported.into())
    }
}

// Moments are whole seconds since the start, never fall, and end at the type's last value.
#[test]
fn answers_the_seconds_since_the_start(rt: HostRuntime) {
    let end = u32::MAX as u64 * 1_000;
    for (readings, moments) in [
        ([Some(7), Some(1_006), Some(1_007)], [0, 1]),
        ([Some(500), Some(5_500), Some(5_499)], [5, 5]),
        ([Some(500), Some(9_500), None], [9, 9]),
        ([Some(500), None, Some(9_500)], [0, 9]),
        ([Some(500), Some(400), Some(1_500)], [0, 1]),
        ([None, Some(5_000), Some(6_000)], [0, 0]),
        (
            [Some(0), Some(end), Some(end + 1_000)],
            [u32::MAX, u32::MAX],
        ),
    ] {
        let mut operator = ClockOperator::new(Readings {
            readings: &readings,
            next: Cell::new(0),
        });
        assert_eq!(rt; [operator.ask(0).now, operator.ask(0).now], moments);
    }
}

// As the top call takes it, over the real clock.
#[test]
fn estimates_a_second_for_each_thousand(rt: HostRuntime) -> Result<(), Fail> {
    let mut operator: Box<dyn Operator + Send> = Box::new(rt.alloc(), ClockOperator::new(rt))?;
    for (left, estimate) in [
        (0, 0),
        (1, 1),
        (1_000, 1),
        (1_001, 2),
        (4_294_967_294_000, u32::MAX - 1),
        (4_294_967_294_001, u32::MAX),
        (u64::MAX, u32::MAX),
    ] {
        let answer = operator.ask(left);
        assert_eq!(rt; answer.estimate, estimate);
        assert_eq!(rt; answer.command, Command::Nothing);
    }
    Ok(())
}
