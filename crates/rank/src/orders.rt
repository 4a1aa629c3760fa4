// The laws of the two orders, as facts.
ghost use Rattle.std.specs.Prelude.{◌≡◌, true, false, if◌then◌else◌, int_lt};
ghost use Rattle.rank.specs.declared.spread.DatedSpread.{DatedSpread};
ghost use Rattle.rank.specs.declared.standing.Standing.{Standing};
ghost use Rattle.rank.specs.Orders.{lower_spread, higher_standing};
ghost use Rattle.rank.specs.Ranks.{StrictOrder};

/// Both orders are strict, and each compares one number after the other.
pub fn both_orders_are_strict()
    ensures spreads { StrictOrder lower_spread }
    ensures standings { StrictOrder higher_standing }
    ensures value_then_hour { (a b : DatedSpread) → lower_spread a b ≡
        (if int_lt a.value b.value then true else
        (if int_lt b.value a.value then false else int_lt a.hour b.hour)) }
    ensures cash_then_available_then_number { (a b : Standing) → higher_standing a b ≡
        (if int_lt b.cash a.cash then true else
        (if int_lt a.cash b.cash then false else
        (if int_lt b.available a.available then true else
        (if int_lt a.available b.available then false else int_lt a.number b.number)))) }
{}
