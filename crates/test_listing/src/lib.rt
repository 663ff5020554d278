// What the trial compares with: a listing of all interpretations of a small sheet.
//
// The listing shares no code with the entry points, and is not derived from their definitions. All functions are proved safe and ending; that
// the listing is right rests on its being plain.
#![tactic(auto)]

pub mod answer; // the answer of a sheet, and that at given sizes: the first candidate, before its unforced cells are filled
pub mod apart; // which terms an interpretation tells apart
pub mod bundles; // what a bundle of sheets is to give
pub mod fitted; // the answer's fitted sheet
pub mod keys; // what terms and literals say under one interpretation
pub mod ranges; // lists of sizes
pub mod shape; // the tables of interpretations, and an odometer over them
pub mod unforced; // the cells of the answer that no term reaches
