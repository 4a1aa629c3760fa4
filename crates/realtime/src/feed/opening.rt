// A feed is opened over a list that passes, or made over any list; of one that does not pass it reads nothing.
ghost use Rattle.std.specs.Prelude.{◌≡◌, Err, IfOk, IfErr};
ghost use Rattle.lists.specs.Lists.{Passed, Checked};
ghost use Rattle.realtime.specs.Feeds.{feed_layout, feed_meaning};
ghost use Rattle.realtime.specs.Laws.{Opened, ReadsAs};

use super::Feed;
use lists::layout::Sizes;
use market::fault::Fault;

impl<'a, const PER: u8> Feed<'a, PER> {
    /// The feed over a list that passes its check, or the refusal of the check.
    pub fn open(list: &'a [i32]) -> Result<Feed<'a, PER>, Fault>
        ensures passes { IfOk result (λ feed. Passed (feed_layout PER) list.now feed.sizes) }
        ensures keeps_the_list { IfOk result (λ feed. feed.list.now ≡ list.now) }
        ensures reads_the_list { IfOk result (λ feed. ReadsAs PER list.now (feed_meaning PER feed.list.now feed.sizes.rows feed.sizes.columns)) }
        ensures refused { IfErr result (λ fault. Checked (feed_layout PER) list.now (Err fault)) }
    {
        let sizes = Feed::<PER>::check(list)?;
        Ok(Feed { list, sizes })
    }

    /// The feed over a list; over one that does not pass its check every question is outside the sizes.
    pub fn over(list: &'a [i32]) -> Feed<'a, PER>
        ensures keeps_the_list { result.list.now ≡ list.now }
        ensures takes_the_sizes { Opened PER list.now result.sizes.rows result.sizes.columns }
        ensures reads_the_list { ReadsAs PER list.now (feed_meaning PER result.list.now result.sizes.rows result.sizes.columns) }
    {
        let sizes = Feed::<PER>::check(list).unwrap_or(Sizes {
            rows: 0,
            columns: 0,
        });
        Feed { list, sizes }
    }

    /// How many locations and hours it has.
    pub fn sizes(&self) -> Sizes
        ensures { result ≡ self.now.sizes }
    {
        self.sizes
    }
}
