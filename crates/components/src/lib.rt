// The list of components, the verdict on it, and a chain: a port of what the source's model.rs does to make one.
#![tactic(auto)]

ghost use Rattle.std.specs.Prelude.{◌≡◌, ◌≤◌, ◌<◌, length};
ghost use Rattle.components.specs.Chain.{entries_of, no_entries, pushed, position, found, new_ids, links, verdict_of, answer_of, id_at};
ghost use Rattle.components.specs.Links.{parent, kind_at, policy_at};
ghost use Rattle.components.specs.Filled.{Filled, ById};

use model::{Component, ComponentAttrs, ComponentId, ComponentKind, FailurePolicy};

// The entries handed in. The length may be any number: what stands past it is not looked at, and of a longer list
// the first 255 entries are kept. It is no `Bounded`: one that is full takes no more, and this one then is too long, which the
// verdict says. Both are fixed memory, since no call uses the heap.
#[derive(Clone, Copy)]
pub struct ComponentList {
    pub entries: [Component; 255],
    pub len: usize,
}

// Why a list of components is no chain.
#[derive(Clone, Copy, Debug, PartialEq, Eq)]
pub enum ChainError {
    Empty,
    TooLong,
    DuplicateId(ComponentId),
    UnknownDependency {
        component: ComponentId,
        depends_on: ComponentId,
    },
    ForwardDependency {
        component: ComponentId,
        depends_on: ComponentId,
    },
}

// A number of the scope's questions and its two places, as C and people are given them: document 01's own numbers, made of the
// error in one place below.
#[derive(Clone, Copy, Debug, PartialEq, Eq)]
pub struct Answer {
    pub number: u64,
    pub place: u64,
    pub other: u64,
}

// Document 01's number and places of a verdict.
impl From<Result<(), ChainError>> for Answer {
    ghost from_gives = { λ verdict answer. answer ≡ answer_of verdict };

    fn from(verdict: Result<(), ChainError>) -> Self {
        let (number, place, other) = match verdict {
            Ok(()) => (0, 0, 0),
            Err(ChainError::Empty) => (2, 0, 0),
            Err(ChainError::TooLong) => (3, 0, 0),
            Err(ChainError::DuplicateId(id)) => (4, id.0, 0),
            Err(
                ChainError::UnknownDependency {
                    component,
                    depends_on,
                },
            ) => (5, component.0, depends_on.0),
            Err(
                ChainError::ForwardDependency {
                    component,
                    depends_on,
                },
            ) => (6, component.0, depends_on.0),
        };
        Answer {
            number,
            place: u64::from(place),
            other: u64::from(other),
        }
    }
}

// The public methods take the list by value, as they were promised; `put`, `place` and `kept` are lent it.
impl ComponentList {
    // A list with no entry.
    pub fn new() -> Self
        ensures { result ≡ no_entries }
    {
        let blank = Component {
            id: ComponentId(0),
            attrs: ComponentAttrs::plain(ComponentKind::Active, FailurePolicy::Required),
        };
        ComponentList {
            entries: [blank; 255],
            len: 0,
        }
    }

    // One entry more. There is room for 255; a list that is given more has length 256 and is too long.
    pub fn push(mut self, component: Component) -> Self
        ensures { result ≡ pushed self component }
    {
        self.put(component);
        self
    }

    // The same of a list that is lent: a sheet has a card for each entry, and by value each would copy the list.
    pub fn put(&mut self, component: Component)
        ensures { self.new ≡ pushed self.old component }
    {
        if self.len < 255 {
            self.entries[self.len] = component;
            self.len += 1;
        } else {
            self.len = 256;
        }
    }

    // How many entries are kept, at most 255.
    pub fn count(self) -> usize
        ensures { (result ≡ length (entries_of self)) × (result ≤ 255) }
    {
        self.kept().len()
    }

    // The first place at which `id` stands, or the number of entries kept where it stands nowhere: no `Option`, since callers
    // are promised that number, and the definition `position` counts so.
    #[tactic(auto, using(crate::proofs::Lookup::found_position))]
    pub fn position(self, id: ComponentId) -> usize
        ensures { result ≡ position (entries_of self) id }
    {
        self.place(id).unwrap_or(self.count())
    }

    // The first place at which `id` stands, if any, of a list that is lent, since by value each call copies the list.
    fn place(&self, id: ComponentId) -> Option<usize>
        ensures { result ≡ found (length (entries_of self.now)) (position (entries_of self.now) id) }
    {
        self.kept().iter().position(|c| c.id == id)
    }

    // The entries kept, of a list that is lent.
    fn kept(&self) -> &[Component]
        ensures { (result.now ≡ entries_of self.now) × (length result.now ≤ 255) }
    {
        &self.entries[..self.len.min(255)]
    }

    // Questions 2 to 6.
    pub fn verdict(self) -> Result<(), ChainError>
        ensures { result ≡ verdict_of self.len (entries_of self) }
    {
        Chain::of(&self).verdict()
    }
}

// A list of components, of which nothing is known, or a chain: who has a list. What reads the entries alone takes either.
pub trait HasList {
    ghost use Rattle.components.specs.declared.ComponentList.{ComponentList};

    ghost list_of: { Self → ComponentList };

    fn list(&self) -> &ComponentList
        ensures { result.now ≡ list_of self.now };

    // How many components are kept, at most 255.
    final fn size(&self) -> usize
        ensures { (result ≡ length (entries_of (list_of self.now))) × (result ≤ 255) }
    {
        self.list().kept().len()
    }

    final fn id_at(&self, p: usize) -> ComponentId
        requires { p < length (entries_of (list_of self.now)) }
        ensures { result ≡ id_at (entries_of (list_of self.now)) p }
    {
        self.list().kept()[p].id
    }

    final fn kind_at(&self, p: usize) -> ComponentKind
        requires { p < length (entries_of (list_of self.now)) }
        ensures { result ≡ kind_at (entries_of (list_of self.now)) p }
    {
        self.list().kept()[p].attrs.kind
    }

    final fn policy_at(&self, p: usize) -> FailurePolicy
        requires { p < length (entries_of (list_of self.now)) }
        ensures { result ≡ policy_at (entries_of (list_of self.now)) p }
    {
        self.list().kept()[p].attrs.failure_policy
    }
}

impl HasList for ComponentList {
    ghost list_of = { λ list. list };

    fn list(&self) -> &ComponentList {
        self
    }
}

impl HasList for Chain {
    ghost list_of = { λ chain. chain.list };

    fn list(&self) -> &ComponentList {
        &self.list
    }
}

// ---- a chain: a list with the two tables that are worked out of it once, so that nothing searches it again

// The tables are always those of the list, of which at most 255 entries are kept. They are as long as a byte counts, in
// fixed memory: no call uses the heap.
#[derive(Clone, Copy)]
pub struct Chain {
    pub list: ComponentList,
    // How many components the chain has, at most 255.
    pub count: usize,
    // By id: the position of the component, or the number of components.
    pub positions: [u8; 256],
    // By position: the position of what the component depends on, or the number of components.
    pub parents: [u8; 255],
    pub ghost few: { length (entries_of list) ≤ 255 },
    pub ghost counted: { count ≡ length (entries_of list) },
    pub ghost by_id: { ById (entries_of list) positions },
    pub ghost by_place: { Filled (parent (entries_of list)) (length (entries_of list)) parents },
}

// From the last component to the first, so that of equal ids the first has the place. An id that no component has keeps the
// number of components, which fits a byte: at most 255 entries are kept.
fn positions_of(list: &ComponentList) -> [u8; 256]
    ensures { ById (entries_of list.now) result }
{
    let n = list.count();
    let mut positions = [n as u8; 256];
    for (p, entry) in list.entries[..n].iter().enumerate().rev() {
        positions[entry.id.index()] = p as u8;
    }
    positions
}

// What stands past the number of components stays 0: no one reads it. The table is written at a place, and not by `iter_mut` with
// `zip`: std tells nothing of what is written behind an adapter of `iter_mut`.
fn parents_of(list: &ComponentList, positions: &[u8; 256]) -> [u8; 255]
    requires { ById (entries_of list.now) positions.now }
    ensures { Filled (parent (entries_of list.now)) (length (entries_of list.now)) result }
{
    let n = list.count();
    let mut parents = [0; 255];
    for (p, entry) in list.entries[..n].iter().enumerate() {
        parents[p] = entry
            .attrs
            .depends_on
            .map_or(n as u8, |id| positions[id.index()]);
    }
    parents
}

// A place is a number here, and no Option or type of its own: for none it is the number of components, as the definitions
// count, the tables keep it and the cursor of a walk that has ended stands. So what is given a place has a premise, in
// `HasList` and in the crates above. The methods are lent the chain: by value each would copy 2,100 bytes.
impl Chain {
    ghost use Rattle.components.specs.Tables.{entries};

    // Both tables are worked out for any list whatever, also one that is refused. The list is lent, so that it is copied once.
    pub fn of(list: &ComponentList) -> Self
        ensures { result.list ≡ list.now }
    {
        let positions = positions_of(list);
        let parents = parents_of(list, &positions);
        Chain {
            list: *list,
            count: list.count(),
            positions,
            parents,
        }
    }

    // The position of the component `id`, or the number of components where there is none.
    pub fn position(&self, id: ComponentId) -> usize
        ensures { result ≡ position (entries self.now) id }
    {
        usize::from(self.positions[id.index()])
    }

    // Question 4 of the entry at place `at`: is its id new? The tables tell each place, so that no question searches the list.
    fn new_id(&self, at: usize, entry: &Component) -> Result<(), ChainError>
        ensures { result ≡ new_ids (entries self.now) at entry.now }
    {
        if self.position(entry.id) < at {
            return Err(ChainError::DuplicateId(entry.id));
        }
        Ok(())
    }

    // Questions 5 and 6 of the entry at place `at`: does its dependency stand in the list, and earlier?
    fn link(&self, at: usize, entry: &Component) -> Result<(), ChainError>
        ensures { result ≡ links (entries self.now) at entry.now }
    {
        let Some(depends_on) = entry.attrs.depends_on else {
            return Ok(());
        };
        let place = self.position(depends_on);
        if self.count <= place {
            return Err(ChainError::UnknownDependency {
                component: entry.id,
                depends_on,
            });
        }
        if at <= place {
            return Err(ChainError::ForwardDependency {
                component: entry.id,
                depends_on,
            });
        }
        Ok(())
    }

    // Questions 2 to 6 of its list.
    pub fn verdict(&self) -> Result<(), ChainError>
        ensures { result ≡ verdict_of self.now.list.len (entries self.now) }
    {
        if self.list.len == 0 {
            return Err(ChainError::Empty);
        }
        if 255 < self.list.len {
            return Err(ChainError::TooLong);
        }
        let entries = &self.list.entries[..self.list.len];
        entries
            .iter()
            .enumerate()
            .try_for_each(|(at, entry)| self.new_id(at, entry))?;
        entries
            .iter()
            .enumerate()
            .try_for_each(|(at, entry)| self.link(at, entry))
    }
}
