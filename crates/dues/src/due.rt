// What is due: what has to come next among the pairs.

// What is wanted as an argument.
#[derive(Clone, Copy)]
pub enum Wanted {
    // a tree of this very type
    Exactly(u32),
    Number,
    // what is joined to a sequence of the type
    Joined(u32),
    Sequence,
    Anything,
}

#[derive(Clone, Copy)]
pub enum Due {
    // a tree: its nesting and its type
    Tree(u32, u32),
    // a condition's chain: its first pair
    Chain,
    // a chain's count of applications, to a scope of the type
    Count(u32),
    // an application to a scope of the type
    Application(u32),
    Argument(Wanted),
}
