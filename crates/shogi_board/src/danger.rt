use crate::square::Square;

// Where an attack on a square may come from.
#[derive(Clone, Copy)]
pub(crate) enum Danger {
    // From any square.
    Anywhere,
    // From a piece that is in sight in the direction in which this square lies.
    Towards(Square),
    // From none.
    Nowhere,
}
