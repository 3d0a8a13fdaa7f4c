mod rows;
mod sets;
mod words;
