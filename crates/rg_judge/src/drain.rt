// What a step does to the claims.
// (1) It sets the drain of the utility's next stage.
// (2) At a switch it asks whether any session holds a claim.
ghost use Rattle.std.specs.Prelude.{◌≡◌, ◌==◌, OnOk};
ghost use Rattle.std.specs.FinMap as map;
ghost use Rattle.rg_base.specs.declared.options.DrainState.TheVariants.{Free};

use rg_base::no_memory::NoMemory;
use rg_base::options::{DrainFor, DrainState};
use rg_claim::claims::Claims;

/// Sets the drain. A drain is granted only where nobody holds what it covers, as the verdict of a
/// drain that was asked says; so a refusal never comes.
pub fn set_drain(claims: &mut Claims, drain: DrainState) -> Result<(), NoMemory>
    ensures { OnOk result (claims.new ≡ record claims.old { drain = drain }) }
{
    if claims.drain() == drain {
        return Ok(());
    }
    match drain {
        DrainState::Free => {
            claims.undrain();
            Ok(())
        }
        DrainState::Asked(what) => {
            claims.ask(what);
            Ok(())
        }
        DrainState::Granted(what) => {
            claims.ask(what);
            match claims.granted() {
                Ok(()) => Ok(()),
                Err(_) => Err(NoMemory),
            }
        }
    }
}

/// No session holds a claim. The drain is ended on the way.
pub fn is_unclaimed(claims: &mut Claims) -> bool
    ensures unclaimed { result ≡ (map.len claims.old.claims == 0) }
    ensures undrained { claims.new ≡ record claims.old { drain = Free } }
{
    claims.ask(DrainFor::All);
    let holder = claims.holder();
    claims.undrain();
    holder.is_none()
}
