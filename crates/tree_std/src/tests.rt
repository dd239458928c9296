mod broken;
mod flaky;
mod rows;
mod table;
mod wide;
