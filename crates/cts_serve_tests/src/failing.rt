// The rows of a table that do not hold.
use std::alloc::Global;
use std::test::Fail;

/// What is told of the rows that do not hold, each with its label, so that a test shows all of them.
#[derive(Drop)]
pub struct Failing {
    told: String,
}

impl Failing {
    /// Nothing failed so far.
    pub fn new(alloc: Global) -> Failing {
        Failing {
            told: String::new(alloc),
        }
    }

    /// Notes a row of this label where what was found is not what was wanted.
    pub fn note(
        &mut self,
        alloc: Global,
        label: &str,
        found: &str,
        wanted: &str,
    ) -> Result<(), Fail> {
        if found == wanted {
            return Ok(());
        }
        let text = format!(in alloc; "{label}: found {found}, wanted {wanted}\n")?;
        Ok(self.told.push_str(text.as_str())?)
    }

    /// That no row failed, or which ones did.
    pub fn told(self) -> Result<(), Fail> {
        if self.told.is_empty() {
            return Ok(());
        }
        Err(Fail::new(self.told.as_str()))
    }
}
