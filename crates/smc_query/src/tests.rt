use crate::{Cond, Expr, Item, ItemCall, Items, Names, Op, Path, Paths, Query, SortKey, SortKeys};
use smc_tokens::Name;
use std::alloc::Global;
use std::test::Fail;

fn name(alloc: Global, text: &str) -> Result<Name, Fail> {
    Ok(Name::of(String::from_str(alloc, text)?))
}

fn field(alloc: Global, text: &str) -> Result<Path, Fail> {
    let mut names = Vec::new(alloc);
    names.push(name(alloc, text)?)?;
    Ok(Path {
        names: Names::of(names),
    })
}

fn number(units: u64) -> Expr {
    Expr::Number { units, decimals: 0 }
}

#[test]
fn a_query_shows_its_parts(rt: HostRuntime) -> Result<(), Fail> {
    let alloc = rt.alloc();
    let mut by = Vec::new(alloc);
    by.push(field(alloc, "name")?)?;
    let mut items = Vec::new(alloc);
    items.push(Item {
        call: ItemCall::Sum(Expr::Field(field(alloc, "size")?)),
        label: Some(name(alloc, "sizes")?),
    })?;
    let mut keys = Vec::new(alloc);
    keys.push(SortKey {
        path: field(alloc, "sizes")?,
        desc: true,
    })?;
    let query = Query {
        table: name(alloc, "part")?,
        filter: Some(Cond::Compare {
            op: Op::Less,
            left: number(1),
            right: number(2),
        }),
        by: Paths::of(by),
        items: Items::of(items),
        sort: SortKeys::of(keys),
        first: Some(3),
    };
    assert_eq!(rt; query.table.as_str(), "part");
    assert_eq!(rt; query.by.as_slice().len(), 1);
    assert_eq!(rt; query.items.as_slice().len(), 1);
    assert_eq!(rt; query.sort.as_slice().len(), 1);
    for path in query.by.as_slice() {
        for name in path.names.as_slice() {
            assert_eq!(rt; name.as_str(), "name");
        }
    }
    Ok(())
}
