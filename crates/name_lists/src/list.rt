// The list: how many names it has, and the slots. There is no heap, so the count stands beside the room for 24.
ghost use Rattle.std.specs.Prelude.{◌≤◌};

#[derive(Clone, Copy)]
pub struct Names {
    pub count: usize,
    pub names: [u8; 408],
    ghost few: { count ≤ 24 },
}
