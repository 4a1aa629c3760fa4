// Real-time averages from interval prices.
use crate::lines::average_line;
use crate::table::Table;
use market::bounds::Number;
use realtime::feed::Feed;
use realtime::source::Source;

impl<const PER: u8> Table for Feed<'_, PER> {
    ghost count = { λ feed. feed.sizes.rows };

    fn locations(&self) -> Number {
        Number::from(self.sizes().rows)
    }

    /// Prints the averages of a location, hour after hour.
    fn show_location(&mut self, rt: &HostRuntime, location: Number) -> anyhow::Result<()> {
        for hour in 1..=i64::from(self.sizes().columns) {
            let average = self.average(location, hour);
            rt.println(average_line(rt.alloc(), location, hour, average)?)?;
        }
        Ok(())
    }

    /// Prints how many averages were asked for, and at how many prices an hour.
    fn show_end(&self, rt: &HostRuntime) -> anyhow::Result<()> {
        let sizes = self.sizes();
        println!(rt;
            "averages of {} locations and {} hours, {PER} prices an hour",
            sizes.rows, sizes.columns
        )?;
        Ok(())
    }
}
