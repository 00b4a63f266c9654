//! Searches among items that come one after the other, each of which is looked at once.

ghost use Rattle.std.specs.Prelude.{◌≡◌, ◌<◌, ◌+◌, Bool, IfOk, OnOk, length};
ghost use Rattle.std.specs.List.{All};
ghost use Rattle.milter_filter_search.specs.Searches.{HasLooked, IsUnlooked};

use milter_fields::NoMemory;
use std::alloc::Global;

/// What is looked for in items.
pub(crate) trait Lookup<T> {
    /// Whether it is found in an item.
    ghost finds: { Self → T → Bool };

    /// Whether it is found in the item.
    fn finds(&self, alloc: Global, item: &T) -> Result<bool, NoMemory>
        ensures { IfOk result (λ found. found ≡ finds self.now item.now) };
}

/// What is looked for, and whether it was found in the first items.
#[derive(Debug, Drop)]
pub(crate) struct Search<K> {
    /// What is looked for.
    pub(crate) key: K,
    /// How many items were looked at.
    pub(crate) looked: usize,
    /// Whether it was found in one of these.
    pub(crate) found: bool,
}

/// Forgets what each of the searches found.
pub(crate) fn reset_all<K>(searches: &mut [Search<K>])
    ensures { All IsUnlooked searches.new }
{
    for search in searches.iter_mut() {
        search.looked = 0;
        search.found = false;
    }
}

/// Has the search in this place look at the items, all but those that it has looked at. Where there is a key, a search
/// for it takes the place first, if there is a search in the place before. Where memory is refused it doesn't look
/// further.
pub(crate) fn look_at_all<T, K: Lookup<T> + Drop>(
    alloc: Global,
    searches: &mut Vec<Search<K>>,
    place: usize,
    key: Option<K>,
    items: &[T],
)
    requires { All (HasLooked K.finds items.now) searches.old.items }
    ensures { All (HasLooked K.finds items.now) searches.new.items }
{
    if let Some(key) = key {
        put(searches, place, key, items);
    }
    if place < searches.len() {
        look_at(alloc, &mut searches[place], items);
    }
}

/// Puts a search for the key, of nothing yet, in its place, where there is a search in the place before and memory
/// isn't refused.
fn put<T, K: Lookup<T> + Drop>(searches: &mut Vec<Search<K>>, place: usize, key: K, items: &[T])
    requires { All (HasLooked K.finds items.now) searches.old.items }
    ensures { All (HasLooked K.finds items.now) searches.new.items }
{
    let _ = items;
    let search = Search {
        key,
        looked: 0,
        found: false,
    };
    if place < searches.len() {
        searches[place] = search;
    } else if place == searches.len() {
        let _ = searches.push(search);
    }
}

/// Looks at the items that the search has not looked at yet; where memory is refused, at those before.
fn look_at<T, K: Lookup<T>>(alloc: Global, search: &mut Search<K>, items: &[T])
    requires { HasLooked K.finds items.now search.old }
    ensures { HasLooked K.finds items.now search.new }
{
    while search.looked < items.len() {
        if look_at_next(alloc, search, items).is_err() {
            return;
        }
    }
}

/// Looks at the first item that the search has not looked at yet. After `NoMemory` it is as it was.
fn look_at_next<T, K: Lookup<T>>(
    alloc: Global,
    search: &mut Search<K>,
    items: &[T],
) -> Result<(), NoMemory>
    requires left { search.old.looked < length items.now }
    requires looked { HasLooked K.finds items.now search.old }
    ensures looked { HasLooked K.finds items.now search.new }
    ensures more { OnOk result (search.new.looked ≡ search.old.looked + 1) }
{
    if !search.found {
        search.found = search.key.finds(alloc, &items[search.looked])?;
    }
    search.looked += 1;
    Ok(())
}
