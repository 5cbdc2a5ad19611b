//! What a store of outputs in memory keeps of what it did.

ghost use Rattle.std.specs.Prelude.{◌≡◌, [], ◌∷◌, ◌++◌, None, OnOk, Some};
ghost use Rattle.pocsag_command_cases.specs.CrashStores.{names_made, placed_by, result_for};

use pocsag_shell::FileFault;
use std::alloc::{AllocError, Global};

/// The bytes of a transmission and of its certificate.
#[derive(Drop)]
pub(crate) struct PlanOutputs {
    pub(crate) tx: Vec<u8>,
    pub(crate) cert: Vec<u8>,
}

/// The names of two places, and what became of them: these bytes were put there, or there was a fault.
#[derive(Drop)]
pub(crate) struct PlaceEntry {
    tx: String,
    cert: String,
    done: Result<PlanOutputs, FileFault>,
}

/// What became of the places of plans, one after another, and the two places for which files are made.
#[derive(Drop)]
pub(crate) struct PlaceBook {
    alloc: Global,
    entries: Vec<PlaceEntry>,
    pub(crate) made: Option<(String, String)>,
}

impl PlaceBook {
    /// No plan yet.
    pub(crate) fn new(alloc: Global) -> PlaceBook
        ensures entries { placed_by result ≡ [] }
        ensures made { names_made result ≡ None }
    {
        PlaceBook {
            alloc,
            entries: Vec::new(alloc),
            made: None,
        }
    }

    /// Files are made for two places.
    pub(crate) fn make(&mut self, tx: &str, cert: &str) -> Result<(), AllocError>
        ensures made { OnOk result (names_made self.new ≡ Some (tx.now, cert.now)) }
        ensures same { placed_by self.new ≡ placed_by self.old }
    {
        self.made = Some((
            String::from_str(self.alloc, tx)?,
            String::from_str(self.alloc, cert)?,
        ));
        Ok(())
    }

    /// What became of two places.
    pub(crate) fn note(
        &mut self,
        tx: &str,
        cert: &str,
        done: Result<PlanOutputs, FileFault>,
    ) -> Result<(), AllocError>
        ensures noted { OnOk result (placed_by self.new ≡
            placed_by self.old ++ result_for tx.now cert.now done ∷ []) }
        ensures made { names_made self.new ≡ names_made self.old }
    {
        let tx = String::from_str(self.alloc, tx)?;
        let cert = String::from_str(self.alloc, cert)?;
        self.entries.push(PlaceEntry { tx, cert, done })?;
        Ok(())
    }
}
