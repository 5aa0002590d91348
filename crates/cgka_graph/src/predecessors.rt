// Predecessor sets: the heads of a graph.
pub use lists::heads;
