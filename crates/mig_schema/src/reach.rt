//! Which named types a type reaches, and which reach it: searches that visit each body at most once.
ghost use Rattle.std.specs.Prelude.{◌≡◌, ◌↔◌, ◌<◌, ◌∷◌, [], ℕ, Some, IsTrue, Contains, OnOk, IfOk, nat_eq, length};
ghost use Rattle.indexmap.specs.IndexSet.{insert_all};
ghost use Rattle.mig_model.specs.Family.{is_named};
ghost use Rattle.mig_model.specs.Template.{fields_of, cases_of};
ghost use Rattle.mig_template.specs.View.{template_of};
ghost use Rattle.mig_schema.specs.Reach.{points, field_points, case_points, places, lists_of, Reaches, ArePlacesReached, ArePlacesReaching, AreEmpty, AreUsers, IsAddedToEach};

use crate::named::NamedTypes;
use crate::parts::Parts;
use crate::{Memory, Name, Template};
use indexmap::IndexSet;
use mig_template::{Choice, Fields};
use std::alloc::Global;

impl NamedTypes {
    /// Adds the place of the name, if it is a type.
    fn add_place(&self, name: &Name, found: &mut IndexSet<usize>) -> Result<(), Memory>
        ensures { OnOk result (found.new.keys ≡ insert_all nat_eq found.old.keys (places self.now (name.now ∷ []))) }
    {
        if let Some(place) = self.place_of(name) {
            found.insert(place)?;
        }
        Ok(())
    }

    /// Adds the places of the types that the points in the template name.
    #[cycle(places)]
    fn add_places(&self, template: &Template, found: &mut IndexSet<usize>) -> Result<(), Memory>
        ensures { OnOk result (found.new.keys
            ≡ insert_all nat_eq found.old.keys (places self.now (points (template_of template.now)))) }
    {
        match template {
            Template::Leaf(_) | Template::Any => Ok(()),
            Template::List(part) => self.add_places(part.get(), found),
            Template::Point(name) => self.add_place(name, found),
            Template::Rec(record) => {
                self.add_field_places(record.fields(), found)?;
                match record.choice() {
                    Some(choice) => self.add_case_places(choice, found),
                    None => Ok(()),
                }
            }
            Template::Sum(left, right) => {
                self.add_places(left.get(), found)?;
                self.add_places(right.get(), found)
            }
        }
    }

    /// Adds the places of the types that the points in the fields name.
    #[cycle(places)]
    fn add_field_places(&self, fields: &Fields, found: &mut IndexSet<usize>) -> Result<(), Memory>
        ensures { OnOk result (found.new.keys
            ≡ insert_all nat_eq found.old.keys (places self.now (field_points (fields_of fields.now)))) }
    {
        for field in fields.as_slice() {
            self.add_places(&field.template, found)?;
        }
        Ok(())
    }

    /// Adds the places of the types that the points in the cases name.
    #[cycle(places)]
    fn add_case_places(&self, choice: &Choice, found: &mut IndexSet<usize>) -> Result<(), Memory>
        ensures { OnOk result (found.new.keys
            ≡ insert_all nat_eq found.old.keys (places self.now (case_points (cases_of choice.now.1)))) }
    {
        for case in choice.cases() {
            self.add_field_places(&case.fields, found)?;
        }
        Ok(())
    }
}

/// Adds the place to each of those lists.
fn add_to_each(users: &mut Vec<Vec<usize>>, lists: &[usize], place: usize) -> Result<(), Memory>
    requires { (q : ℕ) → Contains lists.now q → q < length users.old.items }
    ensures { OnOk result (IsAddedToEach lists.now place (lists_of users.old) (lists_of users.new)) }
{
    for list in lists {
        users[*list].push(place)?;
    }
    Ok(())
}

/// As many lists with nothing in them.
fn empty_lists(alloc: Global, count: usize) -> Result<Vec<Vec<usize>>, Memory>
    ensures { IfOk result (λ lists. AreEmpty count (lists_of lists)) }
{
    let mut lists = Vec::with_capacity(alloc, count)?;
    for _list in 0..count {
        lists.push(Vec::new(alloc))?;
    }
    Ok(lists)
}

impl NamedTypes {
    /// For each type, the places of those in whose bodies a point names it. It visits each body once.
    fn users(&self, alloc: Global) -> Result<Vec<Vec<usize>>, Memory>
        ensures { IfOk result (λ users. AreUsers self.now (length self.now) (lists_of users)) }
    {
        let mut users = empty_lists(alloc, self.len())?;
        for place in 0..self.len() {
            let mut used = IndexSet::new(alloc);
            self.add_places(self.body_at(place), &mut used)?;
            add_to_each(&mut users, used.as_slice(), place)?;
        }
        Ok(users)
    }

    /// Adds the places of those names that are types.
    fn add_places_of(&self, names: &[Name], found: &mut IndexSet<usize>) -> Result<(), Memory>
        ensures { OnOk result (found.new.keys ≡ insert_all nat_eq found.old.keys (places self.now names.now)) }
    {
        for name in names {
            self.add_place(name, found)?;
        }
        Ok(())
    }
}

/// Adds what isn't there yet.
fn add_all(places: &[usize], found: &mut IndexSet<usize>) -> Result<(), Memory>
    ensures { OnOk result (found.new.keys ≡ insert_all nat_eq found.old.keys places.now) }
{
    for place in places {
        found.insert(*place)?;
    }
    Ok(())
}

impl Parts {
    /// The places of the types that the name reaches. It visits each body at most once.
    pub fn reached(&self, alloc: Global, from: &Name) -> Result<IndexSet<usize>, Memory>
        ensures { IfOk result (λ found. ArePlacesReached self.now from.now found.keys) }
    {
        self.keeps();
        let types = self.types();
        let mut found = IndexSet::new(alloc);
        types.add_place(from, &mut found)?;
        let mut at = 0;
        while at < found.len() {
            let body = types.body_at(found.as_slice()[at]);
            types.add_places(body, &mut found)?;
            at += 1;
        }
        Ok(found)
    }

    /// The places of the types that reach one of the names that are types. It visits each body once.
    pub fn reaching(&self, alloc: Global, names: &[Name]) -> Result<IndexSet<usize>, Memory>
        ensures { IfOk result (λ found. ArePlacesReaching self.now names.now found.keys) }
    {
        self.keeps();
        let types = self.types();
        let users = types.users(alloc)?;
        let mut found = IndexSet::new(alloc);
        types.add_places_of(names, &mut found)?;
        let mut at = 0;
        while at < found.len() {
            let place = found.as_slice()[at];
            add_all(&users[place], &mut found)?;
            at += 1;
        }
        Ok(found)
    }

    /// Whether the type of the first name reaches the other, which is a named type. It visits each body at most once.
    pub fn reaches(&self, alloc: Global, from: &Name, to: &Name) -> Result<bool, Memory>
        requires { IsTrue (is_named self.now to.now) }
        ensures { IfOk result (λ b. IsTrue b ↔ Reaches self.now from.now to.now) }
    {
        let found = self.reached(alloc, from)?;
        let place = self.types().place_of(to).unwrap();
        Ok(found.contains(&place))
    }
}
