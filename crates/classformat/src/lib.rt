// What a constant pool holds, as far as a report reads it (JVMS 4.4). The class file's format stands in specs/.
#![tactic(auto)]

// An entry of the pool.
#[derive(Clone, Copy)]
pub enum Entry {
    // A Utf8: where its bytes start in the file, and how many they are.
    Text {
        start: usize,
        size: usize,
    },
    // A Class: the number of its name.
    Class {
        name: usize,
    },
    // A Fieldref (kind 0), a Methodref or an InterfaceMethodref (kind 1): the numbers of its class, and of its name and type.
    Member {
        kind: usize,
        class: usize,
        named: usize,
    },
    // A NameAndType: the numbers of its name and of its descriptor.
    Named {
        name: usize,
        descriptor: usize,
    },
    // An entry of which no name is made.
    Other,
    // No entry: number 0, the number behind a long or a double, and every number that the pool has not.
    Nothing,
}
