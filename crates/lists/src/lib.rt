// Lists with free places, loops that count, and bytes of numbers: definitions (specs/) and laws (proofs/). Its code changes arrays with free
// places, of any entries: which are meant, the caller says by a test.
#![tactic(auto)]

ghost use Rattle.std.specs.Prelude.{◌≡◌, Bool};
ghost use Rattle.lists.specs.Padded.{AnswersAs, placed, without};

// The entry stands in the first place that passes the test; where none does, the places stay as they are.
pub fn placed<T: Copy, const N: usize, F: Fn(T) -> bool>(
    places: [T; N],
    entry: T,
    is_free: F,
) -> [T; N]
    requires { F.IsAlwaysCallable is_free }
    ensures { (test : T → Bool) → AnswersAs (F.post is_free) test → result ≡ placed test entry places }
{
    let mut next = places;
    if let Some(i) = places.iter().position(|e| is_free(*e)) {
        next[i] = entry;
    }
    next
}

// The entries that pass the test are taken out, the others move up, and free places follow. (`to` is counted by hand: how many were kept.)
pub fn without<T: Copy, const N: usize, F: Fn(T) -> bool>(
    places: [T; N],
    free: T,
    leaves: F,
) -> [T; N]
    requires { F.IsAlwaysCallable leaves }
    ensures { (test : T → Bool) → AnswersAs (F.post leaves) test → result ≡ without test free places }
{
    let mut next = [free; N];
    let mut to: usize = 0;
    for e in places {
        if !leaves(e) {
            next[to] = e;
            to += 1;
        }
    }
    next
}
