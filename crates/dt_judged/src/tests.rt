use crate::{drains_cover_stores, judged_goes_on};

#[test]
fn laws_are_called() {
    drains_cover_stores();
    judged_goes_on();
}
