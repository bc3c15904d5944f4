//! Where the names of objects and actions stand.

use crate::tables::{Action, Object, Run};
use rows::names::Named;

impl Named for Object {
    ghost place = { λ o. o.name };

    fn name_run(&self) -> Run {
        self.name
    }
}

impl Named for Action {
    ghost place = { λ a. a.name };

    fn name_run(&self) -> Run {
        self.name
    }
}
