// The law of booking a bid.
ghost use Rattle.laws.specs.Every.{EveryRun};
ghost use Rattle.laws.specs.Booking.{BookingLaw};

/// After every run, a bid is booked exactly when its questions all say yes; then its hold is spent, it is entered, and all else stays.
pub fn booking_runs()
    ensures { EveryRun BookingLaw }
{}
