// How steps 3 and 4 end.
ghost use Rattle.std.specs.Prelude.{◌<◌};
ghost use Rattle.model.specs.Chart.{most_regions};

use model::Place;

// A region whose condition fails, with its first failing term, counted from 1.
#[derive(Clone, Copy)]
pub struct Failure {
    pub region: usize,
    pub term: u8,
    pub ghost in_range: { region < most_regions },
}

// How they end, and the place then: nothing more is ready, or a region fails, and the place is the one before it.
#[derive(Clone, Copy)]
pub struct Settled {
    pub failure: Option<Failure>,
    pub place: Place,
}
