// What the program is made of.
pub mod run;
pub mod writing;
