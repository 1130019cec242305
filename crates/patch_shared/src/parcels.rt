//! A flight on its way to the completer, and a write on its way to its end.
ghost use Rattle.std.specs.Prelude.{◌≡◌};

use patch_cache::{Flight, Landed};

/// A flight that may be lost: where nobody takes it, it is abandoned.
pub struct Parcel {
    flight: Flight,
}

impl Drop for Parcel {
    fn drop(self) {
        let Parcel { flight } = self;
        flight.abandon();
    }
}

impl Parcel {
    pub fn new(flight: Flight) -> Parcel
        ensures { result.flight ≡ flight }
    {
        Parcel { flight }
    }

    /// The flight, which has to be spent again.
    pub fn into_flight(self) -> Flight
        ensures { result ≡ self.flight }
    {
        let Parcel { flight } = self;
        flight
    }
}

/// A write that the device has done and that may be lost: where nobody ends it, it is abandoned.
pub struct Arrival {
    landed: Landed,
}

impl Drop for Arrival {
    fn drop(self) {
        let Arrival { landed } = self;
        landed.abandon();
    }
}

impl Arrival {
    pub fn new(landed: Landed) -> Arrival
        ensures { result.landed ≡ landed }
    {
        Arrival { landed }
    }

    /// The write, which has to be spent again.
    pub fn into_landed(self) -> Landed
        ensures { result ≡ self.landed }
    {
        let Arrival { landed } = self;
        landed
    }
}
