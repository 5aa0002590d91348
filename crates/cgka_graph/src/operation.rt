// The graph: making a store fresh, admission, and the questions about operations.
pub use admission::{add_op, fresh};
pub use ask::{
    added_member, added_member_number, contains_all, contains_op_hash, depth, find, find_number,
    has_add_before, has_single_head, is_chainable,
};
pub use lists::{children_of, nearest_update_ancestors, predecessors_for};
pub use merging::merge;
