// Classes of claims, and what a drain covers.
//
// 1. There are two classes. Writer includes Reader: a session that holds Writer holds both.
// 2. A drain for WRITERS covers Writer; a drain for ALL covers both classes. An asked drain covers
//    what a granted one does.
// 3. A session is kept out of a class where the drain covers it and the session doesn't hold it.
ghost use Rattle.std.specs.Prelude.{◌≡◌, ◌&&◌, not};
ghost use Rattle.rg_claim.specs.Blocking.{is_blocking};
ghost use Rattle.rg_claim.specs.Classes.{classes_of};
ghost use Rattle.rg_model.specs.Claims.{claim_with, is_covered, is_covered_for, has_class};
ghost use Rattle.rg_model.specs.Claims.{is_kept_out};

use rg_base::options::{DrainFor, DrainState};
use rg_base::session::Class;

fn covers_for(what: DrainFor, class: Class) -> bool
    ensures { result ≡ is_covered_for what class }
{
    match (what, class) {
        (DrainFor::Writers, Class::Reader) => false,
        (DrainFor::Writers, Class::Writer) | (DrainFor::All, _) => true,
    }
}

// Whether the drain covers a class.
fn covers(drain: DrainState, class: Class) -> bool
    ensures { result ≡ is_covered drain class }
{
    match drain {
        DrainState::Free => false,
        DrainState::Asked(what) | DrainState::Granted(what) => covers_for(what, class),
    }
}

// Whether a session with this claim holds a class.
fn holds(held: Option<Class>, class: Class) -> bool
    ensures { result ≡ has_class held class }
{
    match held {
        None => false,
        Some(Class::Reader) => class == Class::Reader,
        Some(Class::Writer) => true,
    }
}

fn keeps_out(drain: DrainState, held: Option<Class>, class: Class) -> bool
    ensures { result ≡ (is_covered drain class && not (has_class held class)) }
{
    covers(drain, class) && !holds(held, class)
}

/// Whether the drain refuses a session with this claim the classes that a claim of `class` needs.
pub fn refuses(drain: DrainState, held: Option<Class>, class: Class) -> bool
    ensures { result ≡ is_kept_out drain held (classes_of class) }
{
    match class {
        Class::Reader => keeps_out(drain, held, Class::Reader),
        Class::Writer => {
            keeps_out(drain, held, Class::Reader) || keeps_out(drain, held, Class::Writer)
        }
    }
}

/// Whether a session with this claim holds a class that the drain covers.
pub fn blocks(drain: DrainState, held: Option<Class>) -> bool
    ensures { result ≡ is_blocking drain held }
{
    (covers(drain, Class::Reader) && holds(held, Class::Reader))
        || (covers(drain, Class::Writer) && holds(held, Class::Writer))
}

/// The claim of a session that had this one and takes a class more.
pub fn claim_more(held: Option<Class>, class: Class) -> Class
    ensures { result ≡ claim_with held class }
{
    match (held, class) {
        (Some(Class::Writer), _) | (_, Class::Writer) => Class::Writer,
        (None | Some(Class::Reader), Class::Reader) => Class::Reader,
    }
}
