//! The places of those of a list that pass a test, kept as it changes.

ghost use Rattle.std.specs.Prelude.{◌≡◌, ◌<◌, nat_lt, nat_eq, not, IsTrue, [], ◌∷◌, ◌++◌, if◌then◌else◌};
ghost use Rattle.std.specs.List.{position};
ghost use Rattle.std.specs.Vec.{vec_capacity, vec_len};
ghost use Rattle.ln_book_tables.specs.Places.{with_place, places_behind};
ghost use Rattle.ln_book_tables.specs.Replay.{without_first};

// Where the first place stands that is after this one.
fn first_behind(places: &[usize], place: usize) -> Option<usize>
    ensures { result ≡ position (nat_lt place) places.now }
{
    places.iter().position(|other| place < *other)
}

// Where this place stands.
fn stands_at(places: &[usize], place: usize) -> Option<usize>
    ensures { result ≡ position (nat_eq place) places.now }
{
    places.iter().position(|other| place == *other)
}

// A place joins the others, in order. Takes no memory.
fn add_place(places: &mut Vec<usize>, place: usize)
    requires { vec_len places.old < vec_capacity places.old }
    ensures joins { places.new.items ≡ with_place place places.old.items }
    ensures room { vec_capacity places.new ≡ vec_capacity places.old }
{
    match first_behind(places.as_slice(), place) {
        None => places.push_reserved(place),
        Some(at) => match places.insert(at, place) {
            Ok(()) => {}
            Err(_) => unreachable!(),
        },
    }
}

// A place goes.
fn remove_place(places: &mut Vec<usize>, place: usize)
    ensures goes { places.new.items ≡ without_first (nat_eq place) places.old.items }
    ensures room { vec_capacity places.new ≡ vec_capacity places.old }
{
    match stands_at(places.as_slice(), place) {
        None => {}
        Some(at) => drop(places.remove(at)),
    }
}

/// What is kept after a change of the one at this place. Takes no memory.
pub(crate) fn put_place(places: &mut Vec<usize>, place: usize, was_due: bool, is_due: bool)
    requires { IsTrue (not was_due) → vec_len places.old < vec_capacity places.old }
    ensures indexed { places.new.items ≡ places_behind place was_due is_due places.old.items }
    ensures room { vec_capacity places.new ≡ vec_capacity places.old }
{
    match (was_due, is_due) {
        (false, false) | (true, true) => {}
        (false, true) => add_place(places, place),
        (true, false) => remove_place(places, place),
    }
}

/// One more stands after the others, at this place. Takes no memory.
pub(crate) fn push_place(places: &mut Vec<usize>, place: usize, is_due: bool)
    requires { vec_len places.old < vec_capacity places.old }
    ensures indexed { places.new.items ≡ if is_due then places.old.items ++ place ∷ [] else places.old.items }
    ensures room { vec_capacity places.new ≡ vec_capacity places.old }
{
    if is_due {
        places.push_reserved(place);
    }
}
