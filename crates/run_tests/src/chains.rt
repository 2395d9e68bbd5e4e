//! Chains that are right, each a list of its declarations.

/// Players whose name is written with a capital, and who get a number.
pub const NAMED: &[&str] = &[
    "form nbt;",
    "version \"DataVersion\";",
    "schema 100;",
    "type player = { \"name\": text, .. };",
    "root player;",
    "fix 101 seq(rename \"name\" \"Name\", add \"Health\" = int 20);",
    "schema 101;",
    "type player = { \"Health\": int, \"Name\": text, .. };",
    "root player;",
];

/// The same, where the second schema is what the fix gives.
pub const FOLLOWING: &[&str] = &[
    "form nbt;",
    "version \"DataVersion\";",
    "schema 100;",
    "type player = { \"name\": text, .. };",
    "root player;",
    "fix 101 seq(rename \"name\" \"Name\", add \"Health\" = int 20);",
    "schema 101 follows;",
];

/// Items in bags of items, of which one field is forgotten and one renamed.
pub const ITEMS: &[&str] = &[
    "form nbt;",
    "version \"DataVersion\";",
    "schema 100;",
    "type item = { \"id\": text, \"bag\"?: list item, .. };",
    "type player = { \"hand\": item, .. };",
    "root player;",
    "fix 101 on item forget \"bag\";",
    "schema 101 follows;",
    "fix 102 on item rename \"id\" \"ID\";",
    "schema 102 follows;",
];

/// Blocks of two sorts, in JSON.
pub const BLOCKS: &[&str] = &[
    "form json;",
    "version \"v\";",
    "schema 1;",
    "type block = { \"pos\": whole, choice \"id\" { \"chest\" { \"items\": list text }, \"sign\" { \"line\": text } }, .. };",
    "type world = { \"blocks\": list block, .. };",
    "root world;",
    "fix 2 on block seq(in \"sign\" rename \"line\" \"text\", retag \"chest\" \"box\");",
    "schema 2 follows;",
];

/// A version under two names.
pub const LEVEL: &[&str] = &[
    "form nbt;",
    "version \"Data\" \"DataVersion\";",
    "schema 100;",
    "type level = { \"Data\": { \"LevelName\": text, .. }, .. };",
    "root level;",
    "fix 101 at \"Data\" rename \"LevelName\" \"Name\";",
    "schema 101 follows;",
];

/// Blocks of unknown sorts are kept, and one sort becomes known.
pub const KEPT: &[&str] = &[
    "form json;",
    "version \"v\";",
    "schema 1;",
    "type block = { \"pos\": whole, choice \"id\" { \"chest\" { \"items\": list text }, else kept } };",
    "type world = { \"blocks\": list block, .. };",
    "root world;",
    "fix 2 on block addcase \"sign\" { \"line\": text, \"n\"?: whole };",
    "schema 2 follows;",
];

/// A fix that does nothing.
pub const IDLE: &[&str] = &[
    "form nbt;",
    "version \"DataVersion\";",
    "schema 100;",
    "type player = { \"name\": text, .. };",
    "root player;",
    "fix 101 nop;",
    "schema 101 follows;",
];
