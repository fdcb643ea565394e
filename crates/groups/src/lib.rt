// The groups in which a node is registered: 0 to 8 of them, their limits, and at which place one stands.
//
// Every public function is total: it takes any count and any numbers. Places past the count are never looked at.
#![tactic(auto)]

ghost use Rattle.std.specs.Prelude.{◌≡◌, ◌&&◌, eqb, get_or};
ghost use Rattle.groups.specs.Groups.{no_group, is_group, number_at, place_among, groups_within, place_of, kept_at, kept as kept_of};

use std::array::from_fn;

// 1 to 255
#[repr(C)]
#[derive(Clone, Copy, PartialEq, Eq)]
pub struct Group(pub u8);

#[repr(C)]
#[derive(Clone, Copy, PartialEq, Eq)]
pub struct Groups {
    pub count: u8,
    pub list: [Group; Groups::PLACES],
}

impl Group {
    pub fn within(self) -> bool
        ensures { result ≡ is_group self.0 }
    {
        (1..=255).contains(&self.0)
    }
}

impl Groups {
    // How many groups there may be.
    pub const PLACES: usize = 8;

    pub const NONE: Groups = Groups {
        count: 0,
        list: [Group(0); Groups::PLACES],
    };

    // The group at a place, none where there is no such place.
    pub fn at(self, i: u8) -> Group
        ensures { result ≡ get_or self.list i no_group }
    {
        octets::at(&self.list, i as usize, Group(0))
    }

    // Whether there are no more than there may be, each within its limits, and none twice.
    pub fn within(self) -> bool
        ensures { result ≡ groups_within self }
    {
        self.count as usize <= Groups::PLACES && (0..self.count).all(|i| self.within_at(i))
    }

    // Whether the group at a place is within its limits, and stands at none before.
    fn within_at(self, i: u8) -> bool
        ensures { result ≡ is_group (number_at self i) && eqb (place_among (number_at self) i (number_at self i)) i }
    {
        let group = self.at(i);
        group.within() & (self.place_among(i, group) == i)
    }

    // At which of the first k places a group stands; k where it stands at none.
    fn place_among(self, k: u8, group: Group) -> u8
        ensures { result ≡ place_among (number_at self) k group.0 }
    {
        for i in 0..k {
            if self.at(i) == group {
                return i;
            }
        }
        k
    }

    // At which place a group stands; the count where it is not registered, which is what 25 asks.
    pub fn place(self, group: Group) -> u8
        ensures { result ≡ place_of self group.0 }
    {
        self.place_among(self.count, group)
    }

    // The group at a place as it is kept: places past the count are 0.
    #[tactic(auto, unfolding(crate::specs::Groups::kept_at))]
    fn kept_at(self, i: usize) -> Group
        ensures { result ≡ kept_at self i }
    {
        if i < self.count as usize {
            octets::at(&self.list, i, Group(0))
        } else {
            Group(0)
        }
    }

    // The groups as they are kept.
    pub fn kept(self) -> Groups
        ensures { result ≡ kept_of self }
    {
        Groups {
            count: self.count,
            list: from_fn(|i| self.kept_at(i)),
        }
    }
}
