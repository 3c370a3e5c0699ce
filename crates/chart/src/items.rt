// Items, the entries of the chart.

// An item by its four numbers; a place of the chart that holds none is blank, four zeros.
#[derive(Clone, Copy, Debug, PartialEq, Eq, Hash)]
pub struct Item {
    // the rule, counted from 1
    pub rule: u16,
    // how many of its symbols are done
    pub done: u16,
    // after how many words it starts
    pub start: u16,
    // the word at which the symbols done end
    pub end: u16,
}

impl Item {
    // a blank place
    pub const BLANK: Item = Item {
        rule: 0,
        done: 0,
        start: 0,
        end: 0,
    };
}
