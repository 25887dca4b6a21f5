//! What signals show.

ghost use Rattle.std.specs.Prelude.{◌≡◌};
ghost use Rattle.holds.specs.Aspects.{aspect_of, permissive};

use crate::aspect::Aspect;
use crate::interlocking::Interlocking;
use sheets::sheet::Sheets;

impl Interlocking {
    /// What a signal shows: that of a clear route that begins there, else stop.
    #[tactic(auto, using(crate::proofs::AspectTurn::aspect_upto_none, crate::proofs::AspectTurn::aspect_upto_more))]
    pub fn aspect(&self, sheets: &Sheets, signal: u8) -> Aspect
        ensures { result ≡ aspect_of sheets.now self.now signal }
    {
        let mut aspect = Aspect::Stop;
        for (route, sheet) in sheets.routes.as_slice().iter().enumerate() {
            if self.state(route).is_clear() && sheet.first == signal {
                aspect = sheet.showing.into();
            }
        }
        aspect
    }

    pub fn is_permissive(&self, sheets: &Sheets, signal: u8) -> bool
        ensures { result ≡ permissive sheets.now self.now signal }
    {
        self.aspect(sheets, signal).permits()
    }
}
