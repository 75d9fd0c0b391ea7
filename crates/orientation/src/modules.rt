// The modules of a sampled grid: 0, 1 or 2, unread.
ghost use Rattle.std.specs.Prelude.{◌≡◌};
ghost use Rattle.orientation.specs.Modules.{lawful_modules};

// Whether each module has one of the three values: the greatest has. No early return, so that the compiler can compare many at a time.
pub fn all_lawful(grid: &[u8]) -> bool
    ensures { result ≡ lawful_modules grid.now }
{
    let mut most: u8 = 0;
    for module in grid {
        most = most.max(*module);
    }
    most <= 2
}
