use crate::publisher::Publisher;
use pg_guest::Processor;
use pg_world::World;

/// What a board was made of, once it takes no more turns.
#[derive(Drop)]
pub struct Finished<'a> {
    /// The record, finished.
    pub world: World,
    /// The processors in the order of their numbers.
    pub processors: Vec<Processor<'a>>,
    pub publisher: Publisher,
}
