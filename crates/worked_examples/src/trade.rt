//! A script whose tasks trade with objects that its functions make.

/// Three tasks and four functions; each task makes two objects, and two are shared.
pub(crate) const TRADE: &str = r#"shared stock; shared log;
fn make(self, name, price) {
  self.name = name; self.price = price; self.sold = 0;
}
fn sell(item, n) {
  item.sold = (item.sold + n);
  return (item.price * n);
}
fn total(a, b) { return (a + b); }
fn label(item) { return (item.name + (": " + text(item.sold))); }
task north {
  let p = new(make, "tea", price: 3);
  let q = new(make, "cup", price: 7);
  let i = 0; let sum = 0;
  while (i < 10) {
    sum = total(sum, sell(p, 2));
    sum = total(sum, sell(q, 1));
    i = (i + 1);
  }
  stock.north = sum; log.north = "done";
  print label(p); print label(q); print sum;
}
task south {
  let p = new(make, "pot", price: 5);
  let q = new(make, "jar", price: 4);
  let i = 0; let sum = 0;
  while (i < 10) {
    sum = total(sum, sell(p, 1));
    sum = total(sum, sell(q, 3));
    i = (i + 1);
  }
  stock.south = sum; log.south = "done";
  print label(p); print label(q); print sum;
}
task west {
  let p = new(make, "mat", price: 2);
  let q = new(make, "pin", price: 1);
  let i = 0; let sum = 0;
  while (i < 10) {
    sum = total(sum, sell(p, 4));
    sum = total(sum, sell(q, 5));
    i = (i + 1);
  }
  stock.west = sum; log.west = "done";
  print label(p); print label(q); print sum;
}
"#;

/// What the tasks print.
pub(crate) const TRADE_LINES: &str = r#"north: tea: 20
north: cup: 10
north: 130
south: pot: 10
south: jar: 30
south: 170
west: mat: 40
west: pin: 50
west: 130
"#;
