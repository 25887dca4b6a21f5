//! What a station answers of a route and of a signal.

ghost use Rattle.std.specs.Prelude.{◌≡◌};
ghost use Rattle.acts.specs.Questions.{state_answer, aspect_answer};

use holds::aspect::Aspect;
use holds::interlocking::Interlocking;
use holds::state::RouteState;
use refusals::refusal::Refusal;
use sheets::sheet::Sheets;

/// The state of a route.
pub fn state(sheets: &Sheets, interlocking: &Interlocking, route: u8) -> Result<RouteState, Refusal>
    ensures { result ≡ state_answer sheets.now interlocking.now route }
{
    let route = usize::from(route);
    sheets.route(route).ok_or(Refusal::NoSuchRoute)?;
    Ok(interlocking.state(route))
}

/// The aspect of a signal.
pub fn aspect(sheets: &Sheets, interlocking: &Interlocking, signal: u8) -> Result<Aspect, Refusal>
    ensures { result ≡ aspect_answer sheets.now interlocking.now signal }
{
    if sheets.element(signal).kind.is_signal() {
        Ok(interlocking.aspect(sheets, signal))
    } else {
        Err(Refusal::NotOfThePlan)
    }
}
