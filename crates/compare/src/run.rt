// Run: the store and the model side by side, and the book of the run.
use books::book::Book;
use naive::Model;
use schedules::side::Side;

#[derive(Drop)]
pub struct Run {
    pub side: Side,
    pub model: Model,
    pub book: Book,
}

impl Run {
    pub fn new(seed: u32) -> Self {
        Run {
            side: Side::new(),
            model: Model::new(),
            book: Book::new(seed),
        }
    }
}
