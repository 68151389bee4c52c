#![tactic(auto)]

// Lists of any type of elements: whether no two of them pass a test.
ghost use Rattle.laws.specs.Lists.{any, none_twice};
ghost use Rattle.std.specs.Prelude.{◌≡◌, Bool};

// Some element passes with x.
fn passes_with<T, F: Fn(&T, &T) -> bool>(x: &T, xs: &[T], same: &F) -> bool
    requires { F.IsAlwaysCallable same.now }
    ensures { (e : T → T → Bool) → ((a b r : _) → F.post same.now a b r → r ≡ e a.now b.now) → result ≡ any (e x.now) xs.now }
{
    xs.iter().any(|y| same(x, y))
}

// No two elements pass the test: each is held against those after it.
pub fn none_twice<T, F: Fn(&T, &T) -> bool>(xs: &[T], same: F) -> bool
    requires { F.IsAlwaysCallable same }
    ensures { (e : T → T → Bool) → ((a b r : _) → F.post same a b r → r ≡ e a.now b.now) → result ≡ none_twice e xs.now }
{
    let mut rest = xs;
    while let Some((x, tail)) = rest.split_first() {
        if passes_with(x, tail, &same) {
            return false;
        }
        rest = tail;
    }
    true
}
