use rg_base::place::Place;
use rg_bulk::build::nodes;
use std::test::Fail;

#[test]
fn builds_even_levels(rt: HostRuntime) -> Result<(), Fail> {
    let cases = [
        // (entries, height of the root, its keys, its children, entries or children of its last
        // child, nodes, inner nodes)
        (0, 0, 0, 0, 0, 1, 0),
        (256, 0, 256, 0, 0, 1, 0),
        // The last two leaves share what is left: 129 and 128, and then 172 and 172.
        (257, 1, 2, 2, 128, 3, 1),
        (600, 1, 3, 3, 172, 4, 1),
        (640, 1, 3, 3, 128, 4, 1),
        (57_600, 1, 225, 225, 256, 226, 1),
        // 226 leaves are 113 and 113, which are of two parents.
        (57_601, 2, 2, 2, 113, 229, 3),
    ];
    for (count, height, keys, kids, fill, nodes_in_all, inners) in cases {
        let mut entries = Vec::new(rt.alloc());
        for value in 0..count {
            entries.push((value, Place { page: 1, slot: 7 }))?;
        }
        let tree = nodes(rt.alloc(), entries.as_slice())?;
        let root = &tree.root;
        let shape = (root.height, root.keys.len(), root.kids.len());
        assert_eq!(rt; shape, (height, keys, kids), "{count} entries");
        let last = root.kids.last().map_or(0, |kid| kid.keys.len());
        assert_eq!(rt; last, fill, "{count} entries");
        let counts = (tree.nodes, tree.inners);
        assert_eq!(rt; counts, (nodes_in_all, inners), "{count} entries");
    }
    Ok(())
}
