/// How a row drops its low places.
#[derive(Clone, Copy)]
pub enum Mode {
    /// To the nearest: half of the last place that is dropped is added first.
    Nearest,
    /// Down: the places are dropped as they are.
    Floor,
}
