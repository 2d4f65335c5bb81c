// What one domain holds of the map and the grid: all that its instructions need of them.
// Registers and memory travel with it, but are lent: a struct of two borrows would be no plainer, since `work` needs each by itself.
use model::MOST;
use model::map::Domain;
use rights::count::Count;

#[derive(Clone, Copy)]
pub struct Held {
    pub own: Domain,
    pub count: Count,
    pub row: [bool; MOST],
}
