// Reference prices from last year's prices.
use crate::lines::quote_line;
use crate::table::Table;
use market::bounds::Number;
use market::words::Side;
use reference::history::History;
use reference::policy::Policy;

impl Table for History<'_> {
    ghost count = { λ history. history.sizes.rows };

    fn locations(&self) -> Number {
        Number::from(self.sizes().rows)
    }

    /// Prints both prices of a location.
    fn show_location(&mut self, rt: &HostRuntime, location: Number) -> anyhow::Result<()> {
        for side in [Side::Supply, Side::Demand] {
            let price = self.quote(location, side);
            rt.println(quote_line(rt.alloc(), location, side, price)?)?;
        }
        Ok(())
    }

    /// Prints how many locations were priced, and from how many hours.
    fn show_end(&self, rt: &HostRuntime) -> anyhow::Result<()> {
        let sizes = self.sizes();
        println!(rt;
            "reference prices of {} locations from {} hours",
            sizes.rows, sizes.columns
        )?;
        Ok(())
    }
}
