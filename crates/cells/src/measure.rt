// The size of a queue and of its cells.
ghost use Rattle.std.specs.Prelude.{◌≡◌};
ghost use Rattle.queue_theory.specs.Layout.{is_queue_length, capacity};

// The bytes of a cell (01: 104), and those after its byte 0.
pub const CELL_SIZE: usize = 104;

pub const BODY_SIZE: usize = CELL_SIZE - 1;

// Whether a length is a queue's.
pub fn is_length(n: usize) -> bool
    ensures { result ≡ is_queue_length n }
{
    (n % CELL_SIZE == 0) & ((2 <= n / CELL_SIZE) & (n / CELL_SIZE <= 256))
}

// How many cells there are besides cell 0.
pub fn capacity(queue: &[u8]) -> usize
    ensures { result ≡ capacity queue.now }
{
    (queue.len() / CELL_SIZE).saturating_sub(1)
}
