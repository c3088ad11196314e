ghost use Rattle.std.specs.Prelude.{◌≡◌, ◌<◌, ◌≤◌, ◌+◌, ◌-◌, ◌^◌, ◌==◌, ◌&&◌, nat_lt, if◌then◌else◌, Some, None, IfSome};
ghost use Rattle.doc_items.specs.Changes.{ChangeSet};
ghost use Rattle.doc_op.specs.Actions.{component_actions};
ghost use Rattle.doc_op.specs.Structure.{is_ground, depths_behind};

use crate::Component;

/// How many elements are open at a place of an operation, of those that it inserts and of those that it deletes.
#[derive(Clone, Copy)]
pub(crate) struct Depths {
    pub inserted: u64,
    pub deleted: u64,
}

impl Depths {
    /// Whether no element is open.
    pub fn is_ground(self) -> bool
        ensures { result ≡ is_ground self }
    {
        self.inserted == 0 && self.deleted == 0
    }

    /// The depths after a component; None exactly where it breaks the rules.
    #[tactic(auto, using(crate::proofs::Structures::runs_of_one_kind))]
    pub fn behind(self, component: &Component) -> Option<Depths>
        requires inserted { self.inserted < 2 ^ 63 }
        requires deleted { self.deleted < 2 ^ 63 }
        ensures depths { (u : ChangeSet) → result ≡ depths_behind self (component_actions u component.now) }
        ensures inserted { IfSome result (λ d. d.inserted ≤ self.inserted + 1) }
        ensures deleted { IfSome result (λ d. d.deleted ≤ self.deleted + 1) }
    {
        match component {
            Component::Retain(count) => self.only_if(*count == 0 || self.is_ground()),
            Component::Characters(text) => self.only_if(text.is_empty() || self.deleted == 0),
            Component::ElementStart { .. } => self.open_inserted(),
            Component::ElementEnd => self.close_inserted(),
            Component::DeleteCharacters(text) => self.only_if(
                text.is_empty() || self.inserted == 0,
            ),
            Component::DeleteElementStart { .. } => self.open_deleted(),
            Component::DeleteElementEnd => self.close_deleted(),
            Component::ReplaceAttributes { .. } => self.only_if(self.is_ground()),
            Component::UpdateAttributes(_) => self.only_if(self.is_ground()),
            Component::AnnotationBoundary(_) => Some(self),
        }
    }

    fn only_if(self, keeps_the_rules: bool) -> Option<Depths>
        ensures { result ≡ (if keeps_the_rules then Some self else None) }
    {
        if keeps_the_rules { Some(self) } else { None }
    }

    fn open_inserted(self) -> Option<Depths>
        requires { self.inserted < 2 ^ 63 }
        ensures { result ≡ (if self.deleted == 0 then Some (record { inserted = self.inserted + 1; deleted = self.deleted }) else None) }
    {
        if self.deleted != 0 {
            return None;
        }
        Some(Depths {
            inserted: self.inserted + 1,
            deleted: self.deleted,
        })
    }

    fn close_inserted(self) -> Option<Depths>
        ensures { result ≡ (if (self.deleted == 0)
            && nat_lt 0 self.inserted then Some (record { inserted = self.inserted - 1; deleted = self.deleted }) else None) }
    {
        if self.deleted != 0 || self.inserted == 0 {
            return None;
        }
        Some(Depths {
            inserted: self.inserted - 1,
            deleted: self.deleted,
        })
    }

    fn open_deleted(self) -> Option<Depths>
        requires { self.deleted < 2 ^ 63 }
        ensures { result ≡ (if self.inserted == 0 then Some (record { inserted = self.inserted; deleted = self.deleted + 1 }) else None) }
    {
        if self.inserted != 0 {
            return None;
        }
        Some(Depths {
            inserted: self.inserted,
            deleted: self.deleted + 1,
        })
    }

    fn close_deleted(self) -> Option<Depths>
        ensures { result ≡ (if (self.inserted == 0)
            && nat_lt 0 self.deleted then Some (record { inserted = self.inserted; deleted = self.deleted - 1 }) else None) }
    {
        if self.inserted != 0 || self.deleted == 0 {
            return None;
        }
        Some(Depths {
            inserted: self.inserted,
            deleted: self.deleted - 1,
        })
    }
}
