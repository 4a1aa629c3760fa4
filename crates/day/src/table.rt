// Tables of prices, location after location.
ghost use Rattle.std.specs.Prelude.{◌≡◌, ℕ, pos};

use crate::lines::refusal_line;
use market::bounds::Number;
use market::fault::Fault;

// Its methods print, and differ in their lines from table to table; what a line says stands in the contracts of `lines`.

/// A table over a list of numbers: it shows each location in lines of its own, and then what it was.
pub trait Table: Drop {
    ghost count: { Self → ℕ };

    /// How many locations it has.
    fn locations(&self) -> Number
        ensures { result ≡ pos (count self.now) };

    /// Prints the lines of a location.
    fn show_location(&mut self, rt: &HostRuntime, location: Number) -> anyhow::Result<()>;

    /// Prints what was done, once each location is shown.
    fn show_end(&self, rt: &HostRuntime) -> anyhow::Result<()>;
}

/// Prints the lines of each location of a table, and then what was done.
fn show_locations<T: Table>(rt: &HostRuntime, table: &mut T) -> anyhow::Result<()> {
    for location in 1..=table.locations() {
        table.show_location(rt, location)?;
    }
    table.show_end(rt)
}

/// Prints the table that was opened over the list of a file, or why the list was refused.
pub fn show_table<T: Table>(
    rt: &HostRuntime,
    file: &str,
    opened: Result<T, Fault>,
) -> anyhow::Result<()> {
    match opened {
        Ok(mut table) => show_locations(rt, &mut table),
        Err(fault) => Ok(rt.println(refusal_line(rt.alloc(), file, fault)?)?),
    }
}
